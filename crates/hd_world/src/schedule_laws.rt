//! Laws of schedules: the moves are those of the table, and what is printed of moves is read as
//! these.

ghost use Rattle.std.specs.Prelude.{◌≡◌, ◌↔◌, ℕ, List, Some, Ok};
ghost use Rattle.std.specs.List.{AllByRecursion};
ghost use Rattle.hd_world.specs.MoveText.{move_text, moves_text, IsShort};
ghost use Rattle.hd_world.specs.Schedule.{move_of, said_of, schedule_of};
ghost use Rattle.hd_world.specs.MoveTable.{IsMove};
ghost use Rattle.hd_world.specs.declared.schedule_line.Said.TheVariants as said;
ghost use Rattle.hd_world.specs.declared.moves.Move.{Move};

/// Law: words are a move exactly where a row of the table says so.
pub fn moves_are_those_of_the_table()
    ensures { (words : List (List ℕ)) (move : Move)
        → (move_of words ≡ Some move) ↔ IsMove words move }
{}

/// Law: the line that a move is printed as says this move, and the lines of moves are a schedule of
/// just these.
pub fn printed_schedules_are_read_back()
    ensures line { (move : Move) → IsShort move → said_of (move_text move) ≡ said.Move move }
    ensures text { (moves : List Move) → AllByRecursion IsShort moves
        → schedule_of (moves_text moves) ≡ Ok moves }
{}
