// Which uncontrollable events a plant and a specification share.
ghost use Rattle.std.specs.Prelude.{◌≡◌, length};
ghost use Rattle.system.specs.System.{Automaton};
ghost use Rattle.view.specs.Shown.{system_of, HeadShows};
ghost use Rattle.translation.specs.Systems.{automaton, any_below, controlled};
ghost use Rattle.emit_marks.specs.Roles.{is_with};

use emit::{head_of, is_in, kind_of};
use system::{EventKind, Role};
use view::{Head, View};

// Whether the automaton has the role, and the event in its alphabet.
pub fn is_with(role: Role, e: u8, head: &Head) -> bool
    ensures { (A : Automaton) → HeadShows head.now A → result ≡ is_with role e A }
{
    role == head.role && is_in(e, head.alphabet)
}

fn any_with(view: &View, role: Role, e: u8) -> bool
    ensures { let S = system_of view.now in result ≡ any_below (length S.automata) (λ k. is_with role e (automaton S k)) }
{
    (0..view.layout.automata).any(|k| is_with(role, e, &head_of(view, k)))
}

// Whether the event is uncontrollable and in the alphabets of a plant and of a specification.
pub fn is_controlled(view: &View, e: u8) -> bool
    ensures { result ≡ controlled (system_of view.now) e }
{
    kind_of(view, e) == EventKind::Uncontrollable
        && any_with(view, Role::Plant, e)
        && any_with(view, Role::Specification, e)
}
