// A table: rows that are found by their keys. A list and no map: a clear changes every row of a call, and the law's sums go over all rows.
ghost use Rattle.std.specs.Prelude.{◌≡◌, Bool, false, map, is_some, MatchResult};
ghost use Rattle.std.specs.List.{find};
ghost use Rattle.books.specs.Tables.{put, renewed};

use std::alloc::AllocError;

// A row, its key, and whether a key is its own.
pub(crate) trait Row: Copy {
    type Key: Copy;

    ghost key_of: { Self → Self.Key };

    ghost is_at: { Self.Key → Self → Bool };

    fn key(&self) -> Self::Key
        ensures { result ≡ key_of self.now };

    fn is_at(&self, key: Self::Key) -> bool
        ensures { result ≡ is_at key self.now };
}

// The row at a key.
pub(crate) fn find<T: Row>(rows: &[T], key: T::Key) -> Option<T>
    ensures { result ≡ find (T.is_at key) rows.now }
{
    rows.iter().find(|row| row.is_at(key)).copied()
}

// Each row becomes what a closure makes of it.
pub(crate) fn change<T: Copy, F: Fn(T) -> T>(rows: &mut Vec<T>, f: F)
    requires { F.IsAlwaysCallable f }
    ensures { (g : T → T) → ((x y : T) → F.post f x y → y ≡ g x) → rows.new.items ≡ map g rows.old.items }
{
    for row in rows.iter_mut() {
        *row = f(*row);
    }
}

// A new row in place of the one at its key, if there is one.
pub(crate) fn renew<T: Row>(rows: &mut Vec<T>, new: T)
    ensures { rows.new.items ≡ map (renewed (λ n. T.is_at (T.key_of n)) new) rows.old.items }
{
    let key = new.key();
    change(rows, |row| if row.is_at(key) { new } else { row });
}

// A new row in place of the one at its key, or else at the end.
pub(crate) fn put<T: Row>(rows: &mut Vec<T>, new: T) -> Result<(), AllocError>
    ensures { MatchResult result (λ _. rows.new.items ≡ put (λ n. T.is_at (T.key_of n)) new rows.old.items) (λ _. (rows.new.items ≡ rows.old.items) × (is_some (find (T.is_at (T.key_of new)) rows.old.items) ≡ false)) }
{
    if find(rows, new.key()).is_some() {
        renew(rows, new);
        return Ok(());
    }
    rows.push(new)?;
    Ok(())
}
