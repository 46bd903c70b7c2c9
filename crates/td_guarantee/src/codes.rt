//! The access codes of a guarantee.
ghost use Rattle.std.specs.Prelude.{◌≡◌, ◌∷◌, [], length, IfOk, OnOk, OnErr};
ghost use Rattle.std.specs.List.{list_any};
ghost use Rattle.std.specs.Str.{bytes_eq};

use std::alloc::{AllocError, Global};
use std::marker::Model;
use td_base::AccessCode;

/// The most access codes of a guarantee.
pub const MOST_CODES: usize = 20;

/// The access codes of a guarantee, in ascending order of their characters.
#[derive(Debug, Drop)]
pub struct Codes {
    alloc: Global,
    items: Items,
}

// Most guarantees have one code, which takes no memory of its own.
#[derive(Debug, Drop)]
enum Items {
    One(AccessCode),
    Many(Vec<AccessCode>),
}

impl Items {
    ghost use Rattle.std.specs.Prelude.{◌≤◌, insert};
    ghost use Rattle.td_guarantee.specs.Codes.{codes_kept, without_code};

    // The codes, in order.
    fn listed(&self) -> &[AccessCode]
        ensures { result.now ≡ codes_kept self.now }
    {
        match self {
            Items::One(code) => std::slice::from_ref(code),
            Items::Many(codes) => codes,
        }
    }

    // Puts a code at a place. `AllocError`: want of memory, and they are as they were.
    fn insert(&mut self, alloc: Global, at: usize, code: AccessCode) -> Result<(), AllocError>
        requires { at ≤ length (codes_kept self.old) }
        ensures ok { OnOk result (codes_kept self.new ≡ insert (codes_kept self.old) at code) }
        ensures err { OnErr result (codes_kept self.new ≡ codes_kept self.old) }
    {
        match self {
            Items::One(known) => {
                let mut codes = vec![in alloc; *known]?;
                codes.insert(at, code)?;
                *self = Items::Many(codes);
            }
            Items::Many(codes) => codes.insert(at, code)?,
        }
        Ok(())
    }

    // Takes a code out, if it is there.
    fn remove(&mut self, alloc: Global, code: &AccessCode)
        ensures { codes_kept self.new ≡ without_code code.now (codes_kept self.old) }
    {
        if let Items::Many(codes) = self {
            codes.retain(|known| known != code);
        } else if self.listed().contains(code) {
            *self = Items::Many(Vec::new(alloc));
        }
    }
}

impl Model for Codes {
    ghost use Rattle.std.specs.Prelude.{List, ℕ};
    ghost use Rattle.td_guarantee.specs.Codes.{AreAscending, codes_kept};

    ghost Value = { List (List ℕ) };

    ghost view = { λ c. codes_kept c.items };

    ghost invariant = { λ c. AreAscending (codes_kept c.items) };
}

impl Codes {
    ghost use Rattle.td_guarantee.specs.Codes.{AreAscending, with_code, without_code};

    /// None yet.
    pub fn none(alloc: Global) -> Self
        ensures { result ≡ [] }
    {
        let items = Items::Many(Vec::new(alloc));
        Codes { alloc, items }
    }

    /// One code alone.
    pub fn one(alloc: Global, code: AccessCode) -> Self
        ensures { result ≡ code ∷ [] }
    {
        let items = Items::One(code);
        Codes { alloc, items }
    }

    /// Whether a code is one of them.
    pub fn has(&self, code: &AccessCode) -> bool
        ensures { result ≡ list_any (λ c. bytes_eq c code.now) self.now }
    {
        self.as_slice().contains(code)
    }

    /// How many they are.
    pub fn len(&self) -> usize
        ensures { result ≡ length self.now }
    {
        self.as_slice().len()
    }

    /// Puts a code in its place; one that is there already stays, once. `AllocError`: want of memory, and
    /// they are as they were.
    pub fn add(&mut self, code: AccessCode) -> Result<(), AllocError>
        ensures ok { OnOk result (self.new ≡ with_code code self.old) }
        ensures err { OnErr result (self.new ≡ self.old) }
    {
        if let Err(at) = self.as_slice().binary_search(&code) {
            self.items.insert(self.alloc, at, code)?;
        }
        Ok(())
    }

    /// Takes a code out, if it is there.
    pub fn remove(&mut self, code: &AccessCode)
        ensures { self.new ≡ without_code code.now self.old }
    {
        self.items.remove(self.alloc, code);
    }

    /// The codes, in order.
    pub fn as_slice(&self) -> &[AccessCode]
        ensures value { result.now ≡ self.now }
        ensures ascending { AreAscending result.now }
    {
        self.items.listed()
    }

    /// The same codes in other memory. `AllocError`: want of memory.
    pub fn copy(&self, alloc: Global) -> Result<Self, AllocError>
        ensures { IfOk result (λ codes. codes ≡ self.now) }
    {
        let items = match &self.items {
            Items::One(code) => Items::One(*code),
            Items::Many(codes) => Items::Many(Vec::from_slice(alloc, codes)?),
        };
        Ok(Codes { alloc, items })
    }
}
