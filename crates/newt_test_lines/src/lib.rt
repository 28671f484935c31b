//! Lines and the commands that they give, replies and their lines, and the generated script. It
//! stands on the reader of lines, the writer of replies and the generator. It carries no promise of
//! its own: it holds tests, whose values come from the table of commands and not from the program.
#![tactic(auto)]

#[cfg(test)]
mod generated;
#[cfg(test)]
mod lines;
#[cfg(test)]
mod replies;
#[cfg(test)]
mod rows;
#[cfg(test)]
mod told;
