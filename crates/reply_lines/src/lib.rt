//! The text of an output: header, journal, each sender's desk with its replies and fills, local books and report.
#![tactic(auto)]

mod books;
mod day;
mod day_notices;
mod desk;
mod journal;
mod laws;
mod lines;
mod notice_writer;
mod notices;
mod output;
mod report;
mod room;
mod row;
mod sheet;
mod telling;

pub use books::push_book;
pub use day::{DayText, write_day, write_output_from};
pub use day_notices::DayNotices;
pub use desk::NoticeDesk;
pub use journal::{JournalLines, JournalText};
pub use laws::{desks_are_told, one_output, output_from_books};
pub use lines::write_count;
pub use notice_writer::NoticeWriter;
pub use notices::FillPart;
pub use output::{Ending, OutFault, write_from_books};
pub use sheet::NoticeSheet;
pub use telling::Telling;
