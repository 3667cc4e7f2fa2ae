// Lists of a few items, held in place, so that none of them allocates.
ghost use Rattle.std.specs.Prelude.{◌≡◌, ◌+◌, ◌<◌, ◌≤◌, [], ◌∷◌, ◌++◌, length, take, drop, MatchResult};
ghost use Rattle.texts.specs.Few.{listed};

// At most `N` items. Those behind the first `len` stand for nothing. An array and not a vector: no call of a register may
// fail for want of memory, and a row of a table is a plain record.
#[derive(Clone, Copy)]
pub struct Few<T, const N: usize> {
    items: [T; N],
    len: usize,
}

// The items do not all have a place.
#[derive(Clone, Copy, Debug, PartialEq, Eq)]
pub struct Full;

impl<T: Copy + Default, const N: usize> Few<T, N> {
    pub fn new() -> Few<T, N>
        ensures { listed result ≡ [] }
    {
        Few {
            items: [T::default(); N],
            len: 0,
        }
    }

    // The items of a slice.
    pub fn of(items: &[T]) -> Result<Few<T, N>, Full>
        ensures { MatchResult result (λ x. (length items.now ≤ N) × (listed x ≡ items.now)) (λ _. N < length items.now) }
    {
        let mut few = Few::new();
        few.extend(items)?;
        Ok(few)
    }
}

impl<T: Copy + Default, const N: usize> Default for Few<T, N> {
    ghost is_default = { λ few. listed few ≡ [] };

    fn default() -> Few<T, N> {
        Few::new()
    }
}

impl<T: Copy, const N: usize> Few<T, N> {
    fn len(&self) -> usize
        ensures { result ≡ length (listed self.now) }
    {
        self.len.min(N)
    }

    pub fn as_slice(&self) -> &[T]
        ensures { result.now ≡ listed self.now }
    {
        let items = &self.items[..];
        &items[..self.len()]
    }

    // Takes the items of a slice behind those that it has, all of them or none.
    pub fn extend(&mut self, items: &[T]) -> Result<(), Full>
        ensures { MatchResult result (λ _. (length (listed self.old) + length items.now ≤ N) × (listed self.new ≡ listed self.old ++ items.now)) (λ _. (N < length (listed self.old) + length items.now) × (self.new ≡ self.old)) }
    {
        let len = self.len();
        if items.len() > N - len {
            return Err(Full);
        }
        let end = len + items.len();
        let places = &mut self.items[..];
        places[len..end].copy_from_slice(items);
        self.len = end;
        Ok(())
    }

    pub fn push(&mut self, x: T) -> Result<(), Full>
        ensures { MatchResult result (λ _. (length (listed self.old) < N) × (listed self.new ≡ listed self.old ++ (x ∷ []))) (λ _. (length (listed self.old) ≡ N) × (self.new ≡ self.old)) }
    {
        let len = self.len();
        if len == N {
            return Err(Full);
        }
        self.items[len] = x;
        self.len = len + 1;
        Ok(())
    }

    // Lets go of every item; what stood in their places stays and stands for nothing.
    pub fn clear(&mut self)
        ensures { listed self.new ≡ [] }
    {
        self.len = 0;
    }
}
