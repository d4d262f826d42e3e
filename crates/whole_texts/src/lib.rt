//! Tests of texts that are read and written, of reports, of pictures, of byte streams and of the
//! texts of faults; of books, their sketches, and what is judged of them; and of searches that ask.
#![tactic(auto)]

#[cfg(test)]
mod books;
#[cfg(test)]
mod certificates;
#[cfg(test)]
mod decisions;
#[cfg(test)]
mod faults;
#[cfg(test)]
mod heads;
#[cfg(test)]
mod impossible_replies;
#[cfg(test)]
mod kept_orders;
#[cfg(test)]
mod lanes;
#[cfg(test)]
mod own_objects;
#[cfg(test)]
mod pictures;
#[cfg(test)]
mod round_trips;
#[cfg(test)]
mod run_reports;
#[cfg(test)]
mod scans;
#[cfg(test)]
mod scripts;
#[cfg(test)]
mod searches;
#[cfg(test)]
mod sets;
#[cfg(test)]
mod streams;
#[cfg(test)]
mod told_searches;
#[cfg(test)]
mod words;
