//! Source files, read in turn.

ghost use Rattle.std.specs.Prelude.{◌≡◌, Some, map, string_bytes};
ghost use Rattle.bl_io.specs.Count.{NeverFell};
ghost use Rattle.bl_link_files.specs.inner.Fronts.{AreFirstTexts};
ghost use Rattle.bl_module_files.specs.Turns.{StandFurther};

use bl_io::{Files, IoFault, read_up_to};
use bl_module_files::FILE_LIMIT;
use bl_tree::List;
use std::alloc::Global;

/// The texts of the first files, as far as they are read, and why the next one has none.
#[derive(Drop)]
pub struct FirstTexts {
    pub texts: List<List<u8>>,
    pub stop: Option<IoFault>,
}

/// The texts of the files of these names, up to the first read that fails.
pub fn texts_of<F: Files>(alloc: Global, names: &[String], files: &mut F) -> FirstTexts
    ensures texts { AreFirstTexts (F.left files.old) (F.left files.new) (F.faults files.old) (F.faults files.new) (map string_bytes names.now)
        result.texts result.stop }
    ensures reads { StandFurther (map string_bytes names.now) (F.left files.old) (F.left files.new) }
    ensures file_counts { NeverFell (F.faults files.old) (F.faults files.new) }
{
    let mut texts = List::new(alloc);
    for k in 0..names.len() {
        match read_up_to(alloc, files, names[k].as_str(), FILE_LIMIT) {
            Ok(text) => {
                if texts.push(List::from_vec(text)).is_err() {
                    return stopped(texts, IoFault::NoMemory);
                }
            }
            Err(fault) => return stopped(texts, fault),
        }
    }
    FirstTexts { texts, stop: None }
}

fn stopped(texts: List<List<u8>>, fault: IoFault) -> FirstTexts
    ensures texts { result.texts ≡ texts }
    ensures stop { result.stop ≡ Some fault }
{
    FirstTexts {
        texts,
        stop: Some(fault),
    }
}
