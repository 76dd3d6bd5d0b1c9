//! What a run prints: the entries of a run, their texts, and the keepers that put them to a sink.
#![tactic(auto)]

mod counts;
mod guest_keep;
mod guest_lines;
mod guest_texts;
mod head;
mod held;
mod journal_keep;
mod keep;
mod law;
mod line_maker;
mod lines;
mod put;
mod quantum;
mod show;
mod summary;
mod traces;

pub use guest_keep::GuestKeep;
pub use head::Head;
pub use held::Held;
pub use journal_keep::JournalKeep;
pub use keep::{Keep, KeepErr};
pub use law::{keepers_show_their_views, text_fixes_the_journal};
pub use lines::{put_end, put_head, put_host_tick, put_quantum, put_slot};
pub use quantum::Quantum;
pub use show::Show;
pub use summary::SummaryKeep;
pub use traces::TraceKeep;
