//! Versions of the format.
ghost use Rattle.std.specs.Prelude.{◌≡◌, ◌≢◌, IfSome, IfNone};
ghost use Rattle.hd_image.specs.declared.version.Version.{Version};
ghost use Rattle.hd_image.specs.Image.{version_byte, parent_width, entry_width, root_number, most_of};

/// A version of the format. New journals are of version two; one of version one is read, and goes
/// on as such.
#[derive(Clone, Copy, Debug, PartialEq, Eq)]
pub enum Version {
    /// A parent takes four bytes.
    One,
    /// A parent takes five bytes.
    Two,
}

impl Version {
    /// Returns the byte that reports the version.
    pub fn byte(self) -> u8
        ensures { result ≡ version_byte self }
    {
        match self {
            Version::One => 1,
            Version::Two => 2,
        }
    }

    /// Returns the version that a byte reports, if it reports one.
    #[tactic(auto, using(crate::proofs::Numbering::no_version))]
    pub fn of_byte(byte: u8) -> Option<Version>
        ensures some { IfSome result (λ v. byte ≡ version_byte v) }
        ensures none { IfNone result ((v : Version) → byte ≢ version_byte v) }
    {
        match byte {
            1 => Some(Version::One),
            2 => Some(Version::Two),
            _ => None,
        }
    }

    /// Returns how many bytes a parent takes.
    pub fn parent_width(self) -> usize
        ensures { result ≡ parent_width self }
    {
        match self {
            Version::One => 4,
            Version::Two => 5,
        }
    }

    /// Returns how many bytes an entry takes.
    pub fn entry_width(self) -> usize
        ensures { result ≡ entry_width self }
    {
        match self {
            Version::One => 8,
            Version::Two => 9,
        }
    }

    /// Returns the number that stands for the root's parent.
    pub fn root_number(self) -> u64
        ensures { result ≡ root_number self }
    {
        match self {
            Version::One => (1 << 32) - 1,
            Version::Two => (1 << 40) - 1,
        }
    }

    /// Returns how many entries a journal may have at most: their numbers are below this.
    pub fn most(self) -> u64
        ensures { result ≡ most_of self }
    {
        match self {
            Version::One => (1 << 32) - 2,
            Version::Two => (1 << 40) - 2,
        }
    }
}
