// The fields of a SEQUENCE, one after another.
ghost use Rattle.std.specs.Prelude.{◌≡◌, ◌∷◌, [], ℕ, Bool, None, Some, Option, MatchOption, map, option_map};
ghost use Rattle.asn1_blocks.specs.Tree.{Tree, Trees};
ghost use Rattle.asn1_outline.specs.Structure.{Nodes, tree_at};
ghost use Rattle.asn1_certificate.specs.Sequences.{Found, field, found_then, optional};
ghost use Rattle.asn1_certificate.specs.Reading.{Tells, first_of_indices, left, some_index, trees_at};

use asn1_outline::iter::Entries;

// The indices of fields that were not taken yet.
#[derive(Drop)]
pub(crate) struct Fields<'o> {
    next: Option<usize>,
    others: Entries<'o>,
}

impl<'o> Fields<'o> {
    // The fields that the iterator returns.
    pub(crate) fn new(mut entries: Entries<'o>) -> Fields<'o>
        ensures { left result ≡ map (λ item. item.0) entries.entry }
    {
        let next = match entries.next() {
            Some((index, _)) => Some(index),
            None => None,
        };
        Fields {
            next,
            others: entries,
        }
    }

    // The index of the next field.
    pub(crate) fn first(&self) -> Option<usize>
        ensures { result ≡ first_of_indices (left self.now) }
    {
        self.next
    }

    // Whether there is a next field.
    pub(crate) fn is_some(&self) -> bool
        ensures { result ≡ some_index (left self.now) }
    {
        self.next.is_some()
    }

    // Takes the next field.
    pub(crate) fn take(&mut self) -> Option<usize>
        ensures { MatchOption result ((left self.old ≡ []) × (left self.new ≡ []))
            (λ k. left self.old ≡ k ∷ left self.new) }
    {
        let first = self.next?;
        self.next = match self.others.next() {
            Some((index, _)) => Some(index),
            None => None,
        };
        Some(first)
    }

    // Takes the next field, if it is of a type, as a test says.
    pub(crate) fn take_if(&mut self, fits: bool) -> Option<usize>
        ensures field { (ns : Nodes) (is : Tree ℕ → Bool) (others : Trees ℕ → Option Found)
            → Tells ns is fits (left self.old)
            → MatchOption result
            (field is others (trees_at ns (left self.old)) ≡ None)
            (λ k. field is others (trees_at ns (left self.old))
            ≡ found_then (Some (tree_at ns k)) (others (trees_at ns (left self.new)))) }
        ensures optional { (ns : Nodes) (is : Tree ℕ → Bool) (others : Trees ℕ → Option Found)
            → Tells ns is fits (left self.old)
            → optional is others (trees_at ns (left self.old))
            ≡ found_then (option_map (tree_at ns) result) (others (trees_at ns (left self.new))) }
    {
        if !fits {
            return None;
        }
        self.take()
    }
}
