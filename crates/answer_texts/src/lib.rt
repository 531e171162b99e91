//! What a command on a text is answered: a status and a line of JSON. `reply_to` takes the command and the bytes of the text; `solve` is
//! answered by the best policy, that none satisfies, or a bound, with the log of the search, or the limit that the text's terms pass; each
//! accepted text is solved, or passes a limit on its terms.
//! Its tests stand in `run_tests`.
#![tactic(auto)]

mod answer;
mod command;
mod lines;
mod program;
mod reply;
mod solve_answer;
mod solved;
mod solved_laws;
mod status;
mod summary;

pub use answer::{away_reply, reply_to};
pub use command::{Command, Detail};
pub use program::{program_of, terms_allowed};
pub use reply::Reply;
pub use solve_answer::Answer;
pub use solved::solved_answer;
pub use solved_laws::{accepted_end_once, settled_answer_alike};
pub use status::Status;
