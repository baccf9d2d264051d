// The program's words, and the options among those behind the command.
use std::env::{Env, FillError};

// The longest word that has a meaning, --version, has 9 bytes.
pub const WORD: usize = 16;

fn is_there(rt: HostRuntime, i: usize) -> bool {
    !matches!(rt.arg(i, &mut []), Err(FillError::NotPresent))
}

// How many words the program was started with, its own name among them.
pub fn count_words(rt: HostRuntime) -> usize {
    (0..usize::MAX)
        .find(|i| !is_there(rt, *i))
        .unwrap_or(usize::MAX)
}

// Word i, put into the buffer: empty where it is too long, and its first bytes are there.
pub fn short_word<'a>(rt: HostRuntime, i: usize, buf: &'a mut [u8]) -> &'a [u8] {
    let n = rt.arg(i, buf).unwrap_or(0);
    classes::part(buf, 0, n)
}

// Where the first two words stand that are no options, how many there are, and what the options say.
#[derive(Clone, Copy, Default)]
pub struct Words {
    pub first: usize,
    pub second: usize,
    pub count: usize,
    pub is_plain: bool,
    pub is_ended: bool,
    pub is_wrong: bool,
}

impl Words {
    // One more word that is no option: argument i.
    fn add_word(&mut self, i: usize) {
        if self.count == 0 {
            self.first = i;
        } else {
            self.second = i;
        }
        self.count = self.count.saturating_add(1);
    }

    fn add_option(&mut self, word: &[u8]) {
        match word {
            b"--" => self.is_ended = true,
            b"--plain" => self.is_plain = true,
            _ => self.is_wrong = true,
        }
    }

    // An option begins with -, which alone is standard input. A word that is too long for the buffer has its first bytes there.
    fn add(&mut self, rt: HostRuntime, i: usize) {
        let mut buf = [0u8; WORD];
        let n = short_word(rt, i, &mut buf).len();
        let is_option = buf[0] == b'-' && n != 1;
        if self.is_ended || !is_option {
            self.add_word(i);
        } else {
            self.add_option(classes::part(&buf, 0, n));
        }
    }
}

// The arguments from 2 on, of count in all.
pub fn words_of(rt: HostRuntime, count: usize) -> Words {
    let mut words = Words::default();
    for i in 2..count {
        words.add(rt, i);
    }
    words
}
