//! Laws over the definitions.
ghost use Rattle.std.specs.Prelude.{◌≡◌, ◌≢◌, ◌+◌, ◌<◌, ◌⊎◌, ◌∷◌, ◌++◌, ℕ, List, [], length, slice_index, Result, Ok, Err};
ghost use Rattle.std.specs.List.{flat_map, AllByRecursion};
ghost use Rattle.hd_task.specs.declared.plan.Kid.{Kid};
ghost use Rattle.hd_image.specs.declared.version.Version.{Version};
ghost use Rattle.hd_image.specs.declared.contents.Contents.{Contents};
ghost use Rattle.hd_image.specs.declared.contents.Found.{Found};
ghost use Rattle.hd_image.specs.declared.contents.Found.TheVariants.{Journal};
ghost use Rattle.hd_image.specs.declared.error.ImageError.{ImageError};
ghost use Rattle.hd_image.specs.declared.error.ImageError.TheVariants.{NoMemory};
ghost use Rattle.hd_image.specs.declared.header.TheConstants.{DIGEST_LEN, FIRST_GATE};
ghost use Rattle.hd_image.specs.Image.{IsGroup, counted, opened, header, front, image, entries_of, entries_in};
ghost use Rattle.hd_image.specs.Reading.{IsFound, IsReadAnswer, contents_of};
ghost use Rattle.hd_image.specs.Stops.{IsBeforeOrAfter, IsMaking, ReadsAsGroups, IsAfter, ReadsAsNone, MendsTo};

/// Law: a content is read in one way: lack of memory aside, it has one answer at most.
pub fn contents_are_read_in_one_way()
    ensures { (digest content : List ℕ) (a b : Result Found ImageError)
        → a ≢ Err NoMemory → b ≢ Err NoMemory
        → IsReadAnswer digest content a → IsReadAnswer digest content b → a ≡ b }
{}

/// Law: each content has an answer: it is found to be something, or there is a reason against it.
pub fn each_content_has_an_answer()
    ensures { (digest content : List ℕ) → ((i : ℕ) → slice_index content i < 256)
        → (a : Result Found ImageError) × (a ≢ Err NoMemory) × IsReadAnswer digest content a }
{}

/// Law: a journal is read as just the groups that were written.
pub fn images_are_read_as_their_groups()
    ensures { (v : Version) (digest : List ℕ) (groups : List (List Kid))
        → length digest ≡ DIGEST_LEN → AllByRecursion (IsGroup v) groups
        → IsFound digest (image v digest groups) (Journal (contents_of v 1 groups 0 [])) }
{}

/// Law: what a stop leaves while a group is appended is read as the groups before, or is the
/// journal of these and the new one.
pub fn stops_leave_the_groups_before_or_after()
    ensures { (v : Version) (digest : List ℕ) (groups : List (List Kid)) (next : List Kid)
        (content : List ℕ) → length digest ≡ DIGEST_LEN
        → AllByRecursion (IsGroup v) groups → IsGroup v next
        → IsBeforeOrAfter v digest groups next content
        → ReadsAsGroups digest content v groups ⊎ IsAfter digest content v groups next }
{}

/// Law: what a stop leaves while a header is made is read as a header that is still to be made, or
/// as a journal of no groups.
pub fn stops_leave_a_header_to_make_or_no_groups()
    ensures { (v : Version) (digest content : List ℕ) → length digest ≡ DIGEST_LEN
        → IsMaking v digest content → ReadsAsNone digest content v }
{}

/// Law: a journal that is found becomes, once it is mended, the image of groups whose entries were
/// found.
pub fn what_is_mended_is_an_image()
    ensures { (digest content : List ℕ) (found : Contents)
        → IsFound digest content (Journal found) → MendsTo digest content found }
{}

/// Law: what is written is the image of groups: a header that was made has none, and a group that
/// was opened is the last of them. Its entries stand after the others, five bytes after what was
/// the last gate.
pub fn what_is_written_is_an_image()
    ensures made { (v : Version) (digest : List ℕ)
        → 1 ∷ header v digest ++ 0 ∷ [] ≡ image v digest [] }
    ensures appended { (v : Version) (digest : List ℕ) (groups : List (List Kid))
        (next : List Kid) → front v digest groups ++ 1 ∷ (counted v next ++ 0 ∷ [])
        ≡ image v digest (groups ++ next ∷ []) }
    ensures last_gate { (v : Version) (digest : List ℕ) (groups : List (List Kid))
        → length digest ≡ DIGEST_LEN
        → length (front v digest groups) ≡ FIRST_GATE + length (flat_map (opened v) groups) }
    ensures entries { (v : Version) (digest : List ℕ) (groups : List (List Kid))
        (next : List Kid) → length digest ≡ DIGEST_LEN
        → entries_in v FIRST_GATE (groups ++ next ∷ [])
        ≡ entries_in v FIRST_GATE groups
        ++ entries_of v (length (front v digest groups) + 5) next }
{}
