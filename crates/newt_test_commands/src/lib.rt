//! Walks of cursors, entries with large binaries, units and cards that fail, watches and working
//! copies, by the top call over a host in memory. It stands on the trials of whole runs, and
//! carries no promise of its own: it holds tests, whose replies come from the rules of the language
//! and of the image, and not from the program.
#![tactic(auto)]

#[cfg(test)]
mod changes;
#[cfg(test)]
mod copies;
#[cfg(test)]
mod crashes;
#[cfg(test)]
mod four;
#[cfg(test)]
mod images;
#[cfg(test)]
mod large;
#[cfg(test)]
mod limits;
#[cfg(test)]
mod many;
#[cfg(test)]
mod more;
#[cfg(test)]
mod pages;
#[cfg(test)]
mod records;
#[cfg(test)]
mod refused;
#[cfg(test)]
mod thrown;
#[cfg(test)]
mod told;
#[cfg(test)]
mod units;
#[cfg(test)]
mod walks;
#[cfg(test)]
mod watches;
