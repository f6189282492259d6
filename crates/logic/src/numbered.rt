// Document 01's number of an answer: 0 is done or accepted, and each refusal has a number of its own.

ghost use Rattle.std.specs.Prelude.{◌≡◌, ℕ};
ghost use Rattle.logic.specs.Numbered.{done_no, result_no};

const DONE: u8 = 0;

pub trait Numbered {
    ghost number_of: { Self → ℕ };

    fn number(self) -> u8
        ensures { result ≡ number_of self };
}

// Done or accepted.
impl Numbered for () {
    ghost number_of = { done_no };

    fn number(self) -> u8 {
        DONE
    }
}

// Done, with what it gives.
impl Numbered for u64 {
    ghost number_of = { done_no };

    fn number(self) -> u8 {
        DONE
    }
}

impl Numbered for usize {
    ghost number_of = { done_no };

    fn number(self) -> u8 {
        DONE
    }
}

impl<T: Numbered, E: Numbered> Numbered for Result<T, E> {
    ghost number_of = { result_no T.number_of E.number_of };

    fn number(self) -> u8 {
        match self {
            Ok(x) => x.number(),
            Err(e) => e.number(),
        }
    }
}
