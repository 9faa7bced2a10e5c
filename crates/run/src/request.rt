// A call that is asked for, with a place for its answer.
use crate::answer::Answer;
use crate::ask::Ask;

/// One list holds both, so that no answer can lack a place.
#[derive(Clone, Copy)]
pub struct Request<M> {
    pub ask: Ask<M>,
    /// None until the call is made.
    pub answer: Option<Answer>,
}

impl<M> Request<M> {
    ghost use Rattle.std.specs.Prelude.{◌≡◌, None};

    pub fn new(ask: Ask<M>) -> Request<M>
        ensures ask { result.ask ≡ ask }
        ensures answer { result.answer ≡ None }
    {
        Request { ask, answer: None }
    }
}
