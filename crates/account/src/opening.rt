// The opening, and what an account shows.
ghost use Rattle.std.specs.Prelude.{◌≡◌, map, pos, OnErr};
ghost use Rattle.rules.specs.Questions.{first_no, opening_asked};
ghost use Rattle.figures.specs.View.{seen, line_seen};
ghost use Rattle.account.specs.Bounds.{seen as instalment_seen};
ghost use Rattle.account.specs.State.{hold_of, state_of, Opened, OverSlices};
ghost use Rattle.account.specs.Answers.{opened_answer, Asked};

use crate::account::{Account, Hold};
use crate::memory::Memory;
use crate::refusal::Refusal;
use crate::sums::Sums;
use crate::sums::coming::Coming;
use book::kept::Book;
use figures::dates::Day;
use figures::line::Line;
use figures::money::Money;
use figures::row::Row;
use std::mem;
use tariff::tariff::Tariff;

/// The most rows that a sheet takes, and the most lines that a journal takes.
const ROWS: usize = 120;

const LINES: usize = 1024;

impl<'a, T: Tariff> Account<'a, T> {
    /// An account that opens on `day`, over a memory. A refused opening leaves the memory as it is.
    pub fn open(tariff: T, day: u64, memory: &mut Memory<'a>) -> Result<Account<'a, T>, Refusal>
    where
        T: Drop,
        ensures answer { opened_answer result ≡ record { number = first_no (opening_asked day); value = pos 0 } }
        ensures made { Asked (first_no (opening_asked day)) (λ a. Opened T.Tariff.meaning a tariff day memory.old.sheet.now memory.old.journal.now × OverSlices a memory.old.sheet memory.old.journal) result }
        ensures unchanged { OnErr result (memory.new ≡ memory.old) }
    {
        let opening = Day::new(day)?;
        let sums = Sums::new();
        let sheet = Book::new(mem::take(&mut memory.sheet), ROWS);
        let journal = Book::new(mem::take(&mut memory.journal), LINES);
        Ok(Account {
            tariff,
            opening,
            granted: 0,
            holding: None,
            sums,
            sheet,
            journal,
        })
    }

    /// Ends the account: the memory that it was lent, as it leaves it.
    pub fn close(self, memory: &mut Memory<'a>)
    where
        T: Drop,
        ensures sheet { memory.new.sheet ≡ self.entry.sheet.memory }
        ensures journal { memory.new.journal ≡ self.entry.journal.memory }
    {
        let Account {
            tariff: _tariff,
            sheet,
            journal,
            ..
        } = self;
        memory.sheet = sheet.into_memory();
        memory.journal = journal.into_memory();
    }
}

impl<'a, T> Account<'a, T> {
    /// What the tenant was charged less what was paid.
    pub fn balance(&self) -> Money
        ensures { result.0 ≡ (state_of self.now).balance }
    {
        self.sums.balance
    }

    /// What of the balance has fallen due.
    pub fn due(&self) -> Money
        ensures { result.0 ≡ (state_of self.now).due }
    {
        self.sums.due
    }

    /// What each of the next twelve bills will bring, and of how many corrections.
    pub fn coming(&self) -> Coming
        ensures { map instalment_seen result.places ≡ (state_of self.now).coming }
    {
        self.sums.coming
    }

    /// How many holds were granted: the number of the latest.
    pub fn granted(&self) -> u32
        ensures { result ≡ (state_of self.now).granted }
    {
        self.granted
    }

    /// The hold that was granted last, where it is not handed back.
    pub fn hold(&self) -> Option<Hold>
        ensures { hold_of result ≡ (state_of self.now).holding }
    {
        self.holding
    }

    /// The billed rows.
    pub fn rows(&self) -> &[Row]
        ensures { map seen result.now ≡ (state_of self.now).rows }
    {
        self.sheet.records()
    }

    /// The journal's lines.
    pub fn lines(&self) -> &[Line]
        ensures { map line_seen result.now ≡ (state_of self.now).lines }
    {
        self.journal.records()
    }
}
