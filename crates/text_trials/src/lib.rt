//! Trials of what reads and writes text: amounts, the byte ends, lines and fields, names, headers, commands and whole sessions.
#![tactic(auto)]

#[cfg(test)]
mod amounts;
#[cfg(test)]
mod commands;
#[cfg(test)]
mod ends;
#[cfg(test)]
mod filled;
#[cfg(test)]
mod headers;
#[cfg(test)]
mod lines;
#[cfg(test)]
mod scripts;
#[cfg(test)]
mod sessions;
