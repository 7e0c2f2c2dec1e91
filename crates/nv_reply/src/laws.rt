ghost use Rattle.std.specs.Prelude.{◌≡◌, ◌+◌, ◌<◌, ℕ, List, codes, length, nat_eq, sum_by};
ghost use Rattle.std.specs.List.{starts_with};
ghost use Rattle.nb_model.specs.Sound.{IsSound};
ghost use Rattle.tr_router.specs.Parts.{IsState};
ghost use Rattle.nv_reply.specs.Reply.{reply, session_after};
ghost use Rattle.nv_reply.specs.Session.{Session, new_session};
ghost use Rattle.nv_base.specs.Object.{number_limit};

/// Each network that lines leave is sound, as long as the lines have fewer than 4,294,967,293 bytes together.
pub fn lines_leave_sound_networks()
    ensures { (hops : ℕ) (lines : List (List ℕ)) → 1 + sum_by length lines < number_limit
        → IsSound (session_after (new_session hops) lines).network }
{}

/// In each state that lines leave, connections and neighbours are as many as may be, of numbers that fit.
pub fn lines_leave_states_that_fit()
    ensures { (hops : ℕ) (lines : List (List ℕ)) → 1 + sum_by length lines < number_limit
        → IsState (session_after (new_session hops) lines).state }
{}

/// A reply is a refusal exactly where its text begins with `refused E`. (A router's port may be named `refused`, and a line of `nbr-list`
/// begins with its name; an address follows there.)
#[tactic(auto, using(crate::proofs::Refusals::says_refused))]
pub fn refusals_say_so()
    ensures { (session : Session) → IsSound session.network → (line : List ℕ)
        → (reply session line).refused ≡ starts_with nat_eq (reply session line).text (codes "refused E") }
{}
