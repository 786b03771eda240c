//! Runs: octets from a source through an engine to an out; the files that a run reads and saves; and what both programs do
//! around their steps.
#![tactic(auto)]

mod buffer;
mod command_line;
mod console;
mod fault;
mod files;
mod flush;
mod inputs;
mod joint;
mod lines;
mod part;
mod piecewise;
mod reading;
mod reason;
mod resuming;
mod retrying;
mod running;
mod saving;
mod shown;
mod source;
mod watched;

pub use command_line::{command_line_words, print_clap_error, print_fault, print_fault_explained};
pub use console::{dump, status};
pub use fault::{ProgramError, RunFault, SourceFault};
pub use files::{catalogue, open_file, read_to_one_over, requests};
pub use inputs::Inputs;
pub use joint::joint_catalogue;
pub use lines::Lines;
pub use piecewise::Piecewise;
pub use reading::Reading;
pub use reason::{Look, Reason};
pub use resuming::resume;
pub use retrying::Retrying;
pub use running::{Ending, Report, run};
pub use saving::{Disk, Saves};
pub use shown::{ShownName, words_with_stand_ins};
pub use source::Source;
pub use watched::Watched;
