//! Bytes that are read and written piece by piece: a source read up to a limit, whole, a whole text written, and laws
//! about what pieces come to, and the lines that are cut from them. The lines of a text in memory, one after another; and
//! a text that is kept in few bytes until it is written.
#![tactic(auto)]

mod code;
mod codes;
mod halt;
mod line_halt;
mod lines;
mod piece;
mod pieces;
mod short;
mod spelling;
mod taker;
mod text_lines;
mod whole;
mod writing;

pub use halt::Halt;
pub use line_halt::LineHalt;
pub use lines::{LineStop, halt_of_pieces, halt_of_stop, keep_front};
pub use pieces::read_pieces;
pub use short::ShortText;
pub use taker::Taker;
pub use text_lines::{count_lines, next_line};
pub use whole::read_whole;
pub use writing::write_all;
