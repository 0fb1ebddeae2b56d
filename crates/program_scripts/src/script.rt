//! Scripts of requests on diagrams that are there.
use crate::random::Random;
use std::alloc::{AllocError, Global};

/// The most requests of a script.
const MOST_REQUESTS: u64 = 30;

/// A script that is being written.
#[derive(Drop)]
struct Writing {
    random: Random,
    /// The number of variables.
    n: u64,
    /// The numbers of the diagrams that weren't dropped. A diagram has the number of its request.
    live: Vec<u64>,
    bytes: Vec<u8>,
}

/// The script of a seed over so many variables, of which there are at most ten: a line that names them, and a line for
/// each request.
pub(crate) fn script_of(alloc: Global, n: u64, seed: u64) -> Result<Vec<u8>, AllocError> {
    let mut random = Random::new(seed.wrapping_mul(10).wrapping_add(n));
    let count = random.below(MOST_REQUESTS).saturating_add(1);
    let mut writing = Writing {
        random,
        n,
        live: Vec::new(alloc),
        bytes: Vec::from_slice(alloc, b"vars")?,
    };
    for level in 0..n {
        writing.add_variable(level)?;
    }
    writing.bytes.push(b'\n')?;
    for number in 0..count {
        writing.add_request(number)?;
        writing.bytes.push(b'\n')?;
    }
    Ok(writing.bytes)
}

/// A digit of a number.
fn digit(number: u64) -> u8 {
    b'0' + (number % 10) as u8
}

impl Writing {
    /// Adds a blank and the name of a variable.
    fn add_variable(&mut self, level: u64) -> Result<(), AllocError> {
        self.bytes.extend_from_slice(b" v")?;
        self.bytes.push(digit(level))?;
        Ok(())
    }

    /// Adds a blank and the name of a variable that there is.
    fn add_any_variable(&mut self) -> Result<(), AllocError> {
        let level = self.random.below(self.n);
        self.add_variable(level)
    }

    /// Adds a blank and a truth value.
    fn add_value(&mut self) -> Result<(), AllocError> {
        self.bytes.push(b' ')?;
        self.add_bit()
    }

    /// Adds a truth value.
    fn add_bit(&mut self) -> Result<(), AllocError> {
        let value = self.random.below(2);
        self.bytes.push(digit(value))?;
        Ok(())
    }

    /// Adds a blank and the name of a diagram.
    fn add_diagram(&mut self, number: u64) -> Result<(), AllocError> {
        self.bytes.extend_from_slice(b" d")?;
        self.bytes.push(digit(number / 10))?;
        self.bytes.push(digit(number))?;
        Ok(())
    }

    /// Adds a blank and the name of a diagram that is there.
    fn add_operand(&mut self) -> Result<(), AllocError> {
        let at = self.random.below(self.live.len() as u64) as usize;
        let number = match self.live.as_slice().get(at) {
            Some(number) => *number,
            None => 0,
        };
        self.add_diagram(number)
    }

    /// Adds a request of this number.
    fn add_request(&mut self, number: u64) -> Result<(), AllocError> {
        let kind = self.random.below(32);
        let begins = self.live.is_empty() || number < self.n && kind < 16;
        if begins || kind < 3 {
            self.add_leaf(number)
        } else if kind < 7 {
            self.add_answer(kind)
        } else if kind < 8 {
            self.add_drop()
        } else if kind < 14 && self.n != 0 {
            self.add_cofactor(number, kind)
        } else {
            self.add_operation(number)
        }
    }

    /// Adds a constant, or a variable where there is one.
    fn add_leaf(&mut self, number: u64) -> Result<(), AllocError> {
        let constant = self.n == 0 || self.random.below(8) == 0;
        self.bytes
            .extend_from_slice(if constant { b"const" } else { b"var" })?;
        self.add_diagram(number)?;
        if constant {
            self.add_value()?;
        } else {
            self.add_any_variable()?;
        }
        self.live.push(number)?;
        Ok(())
    }

    /// Adds a question.
    fn add_answer(&mut self, kind: u64) -> Result<(), AllocError> {
        match kind {
            3 => {
                self.bytes.extend_from_slice(b"same")?;
                self.add_operand()?;
                self.add_operand()
            }
            4 => {
                self.bytes.extend_from_slice(b"leq")?;
                self.add_operand()?;
                self.add_operand()
            }
            5 => {
                self.bytes.extend_from_slice(b"eval")?;
                self.add_operand()?;
                self.bytes.push(b' ')?;
                for _ in 0..self.n {
                    self.add_bit()?;
                }
                Ok(())
            }
            _ => {
                self.bytes.extend_from_slice(b"size")?;
                self.add_operand()
            }
        }
    }

    /// Adds a drop of a diagram that is there.
    fn add_drop(&mut self) -> Result<(), AllocError> {
        let at = self.random.below(self.live.len() as u64) as usize;
        self.bytes.extend_from_slice(b"drop")?;
        if at < self.live.len() {
            let number = self.live.swap_remove(at);
            self.add_diagram(number)?;
        }
        Ok(())
    }

    /// Adds a quantifier over a variable, or a restriction of one.
    fn add_cofactor(&mut self, number: u64, kind: u64) -> Result<(), AllocError> {
        let word = match kind {
            8 | 9 => b"exists".as_slice(),
            10 | 11 => b"forall".as_slice(),
            _ => b"restrict".as_slice(),
        };
        self.bytes.extend_from_slice(word)?;
        self.add_diagram(number)?;
        self.add_operand()?;
        self.add_any_variable()?;
        if kind > 11 {
            self.add_value()?;
        }
        self.live.push(number)?;
        Ok(())
    }

    /// Adds an operator on one, two or three diagrams.
    fn add_operation(&mut self, number: u64) -> Result<(), AllocError> {
        let (word, operands) = match self.random.below(12) {
            0 => (b"not".as_slice(), 1),
            1 => (b"and".as_slice(), 2),
            2 => (b"or".as_slice(), 2),
            3 | 4 => (b"xor".as_slice(), 2),
            5 => (b"nand".as_slice(), 2),
            6 => (b"nor".as_slice(), 2),
            7 | 8 => (b"xnor".as_slice(), 2),
            9 => (b"imp".as_slice(), 2),
            _ => (b"ite".as_slice(), 3),
        };
        self.bytes.extend_from_slice(word)?;
        self.add_diagram(number)?;
        for _ in 0..operands {
            self.add_operand()?;
        }
        self.live.push(number)?;
        Ok(())
    }
}
