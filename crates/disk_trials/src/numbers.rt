ghost use Rattle.std.specs.Prelude.{◌≡◌, ◌-◌, IfOk};
ghost use Rattle.disk_trials.specs.Numbered.{body, GivesNumber};

use fx_amounts::Memory;
use itoa::Buffer;
use keep_disk::{Round, Rounds};
use std::alloc::Global;

/// The body of a number's block: its digits and as many dots.
pub fn body_of(alloc: Global, number: u64, dots: usize) -> Result<Vec<u8>, Memory>
    ensures { IfOk result (λ made. made.items ≡ body dots number) }
{
    let filler = Vec::from_elem(alloc, b'.', dots)?;
    let mut buffer = Buffer::new();
    let mut body = buffer.format(number).as_bytes().to_vec(alloc)?;
    body.extend_from_slice(&filler)?;
    Ok(body)
}

/// Rounds of numbered blocks, from `next` to below `end`; of each its number is told, on a line of its own.
#[derive(Drop)]
pub struct Numbers {
    alloc: Global,
    next: u64,
    end: u64,
    dots: usize,
}

impl Numbers {
    pub fn new(alloc: Global, next: u64, end: u64, dots: usize) -> Numbers
        ensures { result ≡ record { alloc = alloc; next = next; end = end; dots = dots } }
    {
        Numbers {
            alloc,
            next,
            end,
            dots,
        }
    }
}

impl Rounds for Numbers {
    ghost left = { λ s. s.end - s.next };

    ghost gives = { GivesNumber };

    fn next(&mut self) -> Result<Option<Round>, Memory> {
        let number = self.next;
        if number >= self.end {
            return Ok(None);
        }
        let body = body_of(self.alloc, number, self.dots)?;
        let mut buffer = Buffer::new();
        let mut text = buffer.format(number).as_bytes().to_vec(self.alloc)?;
        text.push(b'\n')?;
        self.next += 1;
        Ok(Some(Round { body, text }))
    }
}
