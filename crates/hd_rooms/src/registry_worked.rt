//! A registry's lists after a few changes, which the checker computes.

ghost use Rattle.std.specs.Prelude.{◌≡◌, [], ◌∷◌, true, false};
ghost use Rattle.hd_rooms.specs.Registry.{added, removed, named, gone, nobody, has, members};
ghost use Rattle.hd_rooms.specs.RegistryExamples.{red, blue, ann, some_joined};

/// Three connections joined two groups, one of them twice, and one is a user's. A member is listed once, where it joined first; a
/// group's members come in the order in which they joined it, whatever their numbers are.
pub fn some_join()
    ensures groups { some_joined.groups ≡ (red, 9) ∷ (blue, 9) ∷ (red, 2) ∷ (red, 5) ∷ [] }
    ensures red { members red some_joined.groups ≡ 9 ∷ 2 ∷ 5 ∷ [] }
    ensures blue { members blue some_joined.groups ≡ 9 ∷ [] }
    ensures nobody { members ann some_joined.groups ≡ [] }
    ensures user { members ann some_joined.users ≡ 9 ∷ [] }
    ensures there { has (red, 2) some_joined.groups ≡ true }
    ensures elsewhere { has (blue, 2) some_joined.groups ≡ false }
{}

/// A connection that leaves a group stays in the others, and is last if it joins again. One that is gone is in none, and no user's.
pub fn some_leave()
    ensures left { (removed some_joined red 9).groups ≡ (blue, 9) ∷ (red, 2) ∷ (red, 5) ∷ [] }
    ensures users { (removed some_joined red 9).users ≡ (ann, 9) ∷ [] }
    ensures again { members red (added (removed some_joined red 9) red 9).groups ≡ 2 ∷ 5 ∷ 9 ∷ [] }
    ensures not_there { removed some_joined blue 2 ≡ some_joined }
    ensures gone_from_groups { (gone some_joined 9).groups ≡ (red, 2) ∷ (red, 5) ∷ [] }
    ensures gone_from_users { (gone some_joined 9).users ≡ [] }
    ensures all_gone { gone (gone (gone some_joined 9) 2) 5 ≡ nobody }
{}
