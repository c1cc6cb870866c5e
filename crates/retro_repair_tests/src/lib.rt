//! Tests of repairs and of histories. The rows have the lines of two sessions or a log, edits of
//! these lines, and what the repair of their recording answers; or the lines alone, and what the
//! history of their recording answers. Histories are also compared with a plain scan of the notes.
#![tactic(auto)]

#[cfg(test)]
mod edits;
#[cfg(test)]
mod grounds;
#[cfg(test)]
mod history_rows;
#[cfg(test)]
mod history_tables;
#[cfg(test)]
mod holding;
#[cfg(test)]
mod queries;
#[cfg(test)]
mod recordings;
#[cfg(test)]
mod rounds;
#[cfg(test)]
mod rows;
#[cfg(test)]
mod scans;
#[cfg(test)]
mod steps;
#[cfg(test)]
mod tables;
#[cfg(test)]
mod telling;
#[cfg(test)]
mod watch;
