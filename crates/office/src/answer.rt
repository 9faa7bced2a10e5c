// What a statement answers to C.
ghost use Rattle.std.specs.Prelude.{◌≡◌};
ghost use Rattle.page.specs.Answered.{value_of};
ghost use Rattle.statements.specs.Refusals.{number_of};

use statements::refused::Refused;

/// The number of the question that was answered no, or 0, and the bytes of the result: two numbers, since C has no Result.
#[repr(C)]
#[derive(Clone, Copy)]
pub struct Answer {
    pub number: u32,
    pub value: u64,
}

impl From<Result<usize, Refused>> for Answer {
    ghost from_gives = { λ result answer. (answer.number ≡ number_of result) × (answer.value ≡ value_of result) };

    fn from(made: Result<usize, Refused>) -> Answer {
        match made {
            Ok(bytes) => Answer {
                number: 0,
                value: bytes as u64,
            },
            Err(refused) => Answer {
                number: refused.number(),
                value: 0,
            },
        }
    }
}
