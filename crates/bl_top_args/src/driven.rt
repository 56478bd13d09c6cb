//! The words of `drive`, of which there may be many.

ghost use Rattle.std.specs.Prelude.{◌≡◌, IfOk, map, option_map, string_bytes};
ghost use Rattle.bl_top_args.specs.Jobs.{driven, plant_in, plant_of, plants_of, spec_of, ticks_in, ticks_of};
ghost use Rattle.bl_top_args.specs.inner.FirstWords.{behind_first};

use crate::job::{Job, NoMemory};
use crate::seed::seed_of;
use std::alloc::Global;

/// The job that the words behind the first ask for, where that is `drive`.
pub(crate) fn driven_by<'a>(alloc: Global, words: &'a [String]) -> Result<Option<Job<'a>>, NoMemory>
    ensures { IfOk result (λ job. option_map spec_of job ≡ driven (behind_first (map string_bytes words.entry.now))) }
{
    match words {
        [_, source, ticks, first, ..] => {
            let Some(ticks) = ticks_of(ticks.as_str()) else {
                return Ok(None);
            };
            match plants_of(alloc, &words[3..])? {
                Some(plants) => Ok(Some(Job::Drive {
                    source: source.as_str(),
                    ticks,
                    plants,
                })),
                None => Ok(None),
            }
        }
        _ => Ok(None),
    }
}

/// The number of ticks that a word of decimal digits writes, where it is at most 1,000,000.
fn ticks_of(word: &str) -> Option<u32>
    ensures { result ≡ ticks_of word.now }
{
    match seed_of(word) {
        Some(number) => ticks_in(number),
        None => None,
    }
}

fn ticks_in(number: u64) -> Option<u32>
    ensures { result ≡ ticks_in number }
{
    if number > 1_000_000 {
        return None;
    }
    Some(number as u32)
}

/// The number of the plant that a word names.
fn plant_of(word: &str) -> Option<u32>
    ensures { result ≡ plant_of word.now }
{
    match word {
        "tank" => Some(1),
        "ramp" => Some(2),
        _ => match seed_of(word) {
            Some(number) => plant_in(number),
            None => None,
        },
    }
}

fn plant_in(number: u64) -> Option<u32>
    ensures { result ≡ plant_in number }
{
    if number >= 4_294_967_296 {
        return None;
    }
    Some(number as u32)
}

/// The numbers of the plants that the words name, where each names one.
fn plants_of(alloc: Global, words: &[String]) -> Result<Option<Vec<u32>>, NoMemory>
    ensures { IfOk result (λ plants. option_map (λ v. v.items) plants ≡ plants_of (map string_bytes words.now)) }
{
    let mut plants = Vec::new(alloc);
    for k in 0..words.len() {
        let Some(plant) = plant_of(words[k].as_str()) else {
            return Ok(None);
        };
        if plants.push(plant).is_err() {
            return Err(NoMemory);
        }
    }
    Ok(Some(plants))
}
