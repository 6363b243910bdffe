// The account of a register: calls with their answers, and the journal as it then stands.
use crate::calls::{Answer, Call, Running};
use banks::bank::Bank;
use banks::record::Record;
use policy::refusal::Refusal;
use stamps::Stamp;
use std::fmt::Display;
use std::io;

// What an account is made of.
#[derive(Clone, Copy)]
pub enum Turn<V> {
    // a call, made so many times
    Calls(u8, Call<V>),
    // the journal is listed
    List,
}

// Prints a call and its answer.
fn print_call<S: Copy + Display, V: Copy + Display>(
    rt: &impl Print,
    call: Call<V>,
    answered: Result<Answer<S, V>, Refusal>,
) -> io::Result<()> {
    match answered {
        Ok(answer) => println!(rt; "{call}: {answer}"),
        Err(refusal) => println!(rt; "{call}: no {refusal}"),
    }
}

impl<S: Stamp + Display, V: Copy + Display, B: Bank<Record<S, V>>> Running<'_, S, V, B> {
    // Takes the turns in their order. A call is printed with its answer.
    pub fn account(&mut self, rt: &impl Print, turns: &[Turn<V>]) -> io::Result<()> {
        for turn in turns {
            match turn {
                Turn::Calls(times, call) => {
                    for _ in 0..*times {
                        let answered = self.call(*call);
                        print_call(rt, *call, answered)?;
                    }
                }
                Turn::List => self.print_journal(rt)?,
            }
        }
        Ok(())
    }

    // Prints the lines in use.
    fn print_journal(&self, rt: &impl Print) -> io::Result<()> {
        let used = self.register.used();
        println!(rt; "lines {used}")?;
        for line in (1..=used).filter_map(|number| self.journal.line(number)) {
            println!(rt; "{line}")?;
        }
        Ok(())
    }
}
