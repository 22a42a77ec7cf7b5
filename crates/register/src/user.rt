// A user, known by his SSI.
ghost use Rattle.std.specs.Prelude.{◌≡◌};
ghost use Rattle.std.specs.Ordering.{nat_cmp, partial_lt};
ghost use Rattle.register.specs.User.{before, is_user, same, Order, Tells};

// The highest SSI.
const HIGHEST: u32 = 16_777_215;

#[derive(Clone, Copy, Debug, PartialEq, Eq, PartialOrd, Ord)]
pub struct User(pub u32);

impl User {
    // Whether the number is a user's: 1 to 16,777,215.
    pub fn is_user(self) -> bool
        ensures { result ≡ is_user self.0 }
    {
        (1..=HIGHEST).contains(&self.0)
    }
}

// States that `==` decides whether users are equal and that `<` is a strict total order of them: both go by their numbers, and so does
// `cmp`, by which a table is searched.
pub fn user_laws()
    ensures equality { Tells }
    ensures order { Order }
    ensures equal { (a b : User) → ⟦<User as PartialEq>⟧.eq a b ≡ same a.0 b.0 }
    ensures less { (a b : User) → partial_lt ⟦<User as PartialOrd>⟧.partial_cmp a b ≡ before a.0 b.0 }
    ensures ranked { (a b : User) → ⟦<User as Ord>⟧.cmp a b ≡ nat_cmp a.0 b.0 }
{}
