//! The words that a program is called with.
use crate::tests::must;
use outside::program_words;
use std::env::FillError;
use std::rt::Env;
use std::test::Fail;

/// A process with these words, of which the first is the program's name.
#[derive(Drop)]
struct Process {
    words: &'static [&'static [u8]],
}

impl Env for Process {
    fn arg(&self, place: usize, buf: &mut [u8]) -> Result<usize, FillError> {
        let Some(word) = self.words.get(place) else {
            return Err(FillError::NotPresent);
        };
        match buf.get_mut(..word.len()) {
            Some(front) => {
                front.copy_from_slice(word);
                Ok(word.len())
            }
            None => Err(FillError::TooLong),
        }
    }

    fn var(&self, _name: &str, _buf: &mut [u8]) -> Result<usize, FillError> {
        Err(FillError::NotPresent)
    }

    fn var_at(&self, _place: usize, _buf: &mut [u8]) -> Result<usize, FillError> {
        Err(FillError::NotPresent)
    }
}

/// The words of processes, and how many of them are behind the program's name, or the status if one is no text.
const PROCESSES: &[(&[&[u8]], Result<usize, u8>)] = &[
    (&[b"taxi", b"check", b"city.tariff"], Ok(2)),
    (&[b"taxi"], Ok(0)),
    (&[], Ok(0)),
    (&[b"taxi", b"check", b"caf\xe9"], Err(1)),
];

/// Fails unless these are the words behind the program's name.
fn must_be(found: &[String], words: &[&[u8]]) -> Result<(), Fail> {
    for place in 0..found.len() {
        let is_so = match words.get(place + 1) {
            Some(word) => *word == found[place].as_bytes(),
            None => false,
        };
        must(is_so, "a word", place as u64)?;
    }
    Ok(())
}

#[test]
fn words_behind_the_name_of_a_program(rt: HostRuntime) -> Result<(), Fail> {
    for (words, want) in PROCESSES {
        let process = Process { words: *words };
        match program_words(&(process, rt.alloc())) {
            Ok(found) => {
                must(
                    Ok(found.len()) == *want,
                    "how many words",
                    found.len() as u64,
                )?;
                must_be(found.as_slice(), words)?;
            }
            Err(status) => must(Err(status) == *want, "a status", u64::from(status))?,
        }
    }
    Ok(())
}
