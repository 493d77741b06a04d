// When `==` says yes. There is nothing to run here; the function carries the theorem.
ghost use Rattle.std.specs.Prelude.{◌≡◌, ◌↔◌, IsTrue};
ghost use Rattle.stores.specs.declared.view.View.{View};
ghost use Rattle.stores.specs.declared.view.Recorded.{Recorded};
ghost use Rattle.stores.specs.declared.view.Head.{Head};

use super::view::{Head, Recorded, View};

// Views, recorded views and heads are found alike exactly where they are equal.
pub fn alike_where_equal()
    ensures views { (v w : View) → IsTrue (⟦<View as PartialEq>⟧.eq v w) ↔ (v ≡ w) }
    ensures recorded { (s t : Recorded) → IsTrue (⟦<Recorded as PartialEq>⟧.eq s t) ↔ (s ≡ t) }
    ensures heads { (g h : Head) → IsTrue (⟦<Head as PartialEq>⟧.eq g h) ↔ (g ≡ h) }
{}
