//! Worked scripts, each with the text that it must print or the status that it must end with, played through the whole
//! program over a source and a sink in memory.
#![tactic(auto)]

#[cfg(test)]
mod answers;
#[cfg(test)]
mod base;
#[cfg(test)]
mod disk;
#[cfg(test)]
mod faults;
#[cfg(test)]
mod hostile;
#[cfg(test)]
mod hostile_control;
#[cfg(test)]
mod kicks;
#[cfg(test)]
mod logs;
#[cfg(test)]
mod making;
#[cfg(test)]
mod playing;
#[cfg(test)]
mod refusals;
#[cfg(test)]
mod rings;
#[cfg(test)]
mod rows;
#[cfg(test)]
mod runs;
#[cfg(test)]
mod script;
#[cfg(test)]
mod session;
#[cfg(test)]
mod text;
#[cfg(test)]
mod trace;
#[cfg(test)]
mod workers;
