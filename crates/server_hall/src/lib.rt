//! Halls: the state of a service that all its connections share. In a hall are the roll of the connections that a
//! commit has to hang up, and the table of questions to agents.
//!
//! A connection makes its calls on a hall, whatever stands behind it: two locks in a service that runs, or a list of
//! answers in a test. Every hall counts its calls and keeps the last ones, so that a promise of a connection can speak
//! of the calls that it made. What a call does to a roll and a table is said where it is lent them.
//!
//! Of the locks each call takes one and makes one proved call on what stands under it, or does so again each time that
//! there is news. `service` alone takes both, the table's first, so that it tells of one moment. What another thread
//! made of the table meanwhile no clause says. Of the roll each entry tells the seat, and each disconnect the front
//! that it is given, what happened up to it: fronts of one log, whose name stands in the type of the hall.
#![tactic(auto)]

mod calls;
mod halls;
mod list_answers;
mod list_hall;
mod locked;
mod refusals;
mod roll_calls;
mod stop_news;
mod table_calls;
mod tallies;
mod views;
mod waiting;

pub use calls::{AnswerCall, AskCall, HallCall, JoinCall, LookCall, NextCall, PartCall};
pub use halls::Hall;
pub use list_answers::HallAnswer;
pub use list_hall::ListHall;
pub use locked::{Locked, QuestionDesk};
pub use refusals::{AskRefusal, NextRefusal};
pub use roll_calls::{EnterCall, HangCall, LeaveCall, enter_roll, hang_roll, leave_roll};
pub use stop_news::StopNews;
pub use table_calls::{Awaited, await_answer, give_next, put_question, withdraw_question};
pub use tallies::HallTally;
pub use views::{ServiceView, view_of};
