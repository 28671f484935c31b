//! Whole runs of the top call over a host in memory: of every kind of command and of every mode. It
//! stands on the trials of whole runs, and carries no promise of its own: it holds tests, whose
//! replies come from the rules of the language and of the image, and not from the program.
#![tactic(auto)]

#[cfg(test)]
mod backups;
#[cfg(test)]
mod checks;
#[cfg(test)]
mod crashes;
#[cfg(test)]
mod declared;
#[cfg(test)]
mod faults;
#[cfg(test)]
mod generated;
#[cfg(test)]
mod limits;
#[cfg(test)]
mod lines;
#[cfg(test)]
mod modes;
#[cfg(test)]
mod programs;
#[cfg(test)]
mod rectangles;
#[cfg(test)]
mod replaces;
#[cfg(test)]
mod restores;
#[cfg(test)]
mod trial;
mod versions;
