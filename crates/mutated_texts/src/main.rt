//! Texts of every form with random changes, through every reader: a reader refuses a text by the
//! name of its first fault, or what is written of what it read is that text, byte by byte.
//!
//! The words are the seed of the generator and the number of texts; with a third word, `figures`, a
//! table says how each reader answered. A text that isn't written back as it was is printed, and so
//! is a reader that accepts no text or refuses none; the status is then 1.
#![tactic(auto)]

mod form;
mod mutate;
mod older;
mod pieces;
mod reading_counts;
mod samples;
mod words;

use anyhow::{Context, Result};
use form::TextForm;
use mutate::{mutate, pick};
use rand_core::SeedableRng;
use rand_xoshiro::Xoshiro256PlusPlus;
use reading_counts::ReadingCounts;
use samples::SAMPLES;
use std::alloc::Global;
use std::env;
use std::process::ExitCode;
use std::rt::Env;

/// What the command words say.
#[derive(Drop)]
struct Wish {
    seed: u64,
    texts: u64,
    figures: bool,
}

fn read_words<R: Env + AllocGlobal>(rt: &R) -> Result<Wish> {
    let words: Vec<String> = env::args(rt)?.skip(1).collect(rt.alloc())?;
    let seed = words.first().context("a seed")?;
    let texts = words.get(1).context("a number of texts")?;
    Ok(Wish {
        seed: seed.parse::<u64>().context("a seed")?,
        texts: texts.parse::<u64>().context("a number of texts")?,
        figures: words.get(2).is_some_and(|word| word.as_str() == "figures"),
    })
}

fn no_texts(alloc: Global) -> Result<Vec<ReadingCounts>> {
    let mut all_counts = Vec::new(alloc);
    for form in TextForm::ALL {
        all_counts.push(ReadingCounts::new(alloc, form))?;
    }
    Ok(all_counts)
}

// Lets each reader read a text, and prints the text where a reader doesn't write it back. The
// answer is whether each reader refuses the text or writes it back.
fn try_text<R: Print + AllocGlobal>(
    rt: &R,
    all_counts: &mut Vec<ReadingCounts>,
    text: &[u8],
) -> Result<bool> {
    let mut all = true;
    for counts in all_counts.iter_mut() {
        if !counts.count_reading(rt.alloc(), text)? {
            let shown = String::from_utf8_lossy(rt.alloc(), text)?;
            println!(rt;
                "another text is written of this {}: {shown:?}",
                counts.form.name()
            )?;
            all = false;
        }
    }
    Ok(all)
}

fn print_figures<R: Print + AllocGlobal>(rt: &R, all_counts: &[ReadingCounts]) -> Result<()> {
    for counts in all_counts {
        print!(rt; "{}: {} accepted", counts.form.name(), counts.kept)?;
        for (what, count) in &counts.refused {
            print!(rt; ", {what:?} {count}")?;
        }
        println!(rt)?;
    }
    Ok(())
}

// Whether each reader accepted a text and refused one; those that didn't are printed.
fn try_answers<R: Print + AllocGlobal>(rt: &R, all_counts: &[ReadingCounts]) -> Result<bool> {
    let mut all = true;
    for counts in all_counts {
        if counts.kept == 0 || counts.refused.is_empty() {
            println!(rt;
                "{} texts accepted and {} names of refusals: {}",
                counts.kept,
                counts.refused.len(),
                counts.form.name()
            )?;
            all = false;
        }
    }
    Ok(all)
}

fn run<R: Env + Print + AllocGlobal>(rt: &R) -> Result<bool> {
    let alloc = rt.alloc();
    let wish = read_words(rt)?;
    let mut rng = Xoshiro256PlusPlus::seed_from_u64(wish.seed);
    let mut all_counts = no_texts(alloc)?;
    let mut all = true;
    for _ in 0..wish.texts {
        let sample = SAMPLES[pick(&mut rng, SAMPLES.len())];
        let text = mutate(alloc, &mut rng, sample)?;
        all &= try_text(rt, &mut all_counts, &text)?;
    }
    all &= try_answers(rt, &all_counts)?;
    if wish.figures {
        print_figures(rt, &all_counts)?;
    }
    Ok(all)
}

fn main(rt: HostRuntime) -> Result<ExitCode> {
    if run(&rt)? {
        println!(rt; "each reader refused each text by a name, or wrote it back")?;
        Ok(ExitCode::SUCCESS)
    } else {
        Ok(ExitCode::FAILURE)
    }
}
