//! Laws of the definitions, each the clause of a function that does nothing.
ghost use Rattle.std.specs.Prelude.{◌≡◌, ℕ, suc, ◌+◌, ◌-◌, ◌^◌, ◌≤◌, List, [], min, Option, Some, None};
ghost use Rattle.sei_fault.specs.Counts.{Counts};
ghost use Rattle.sei_fault.specs.declared.place.Phase.{Phase};
ghost use Rattle.sei_pass.specs.declared.spaces.PassSpace.{PassSpace};
ghost use Rattle.sei_pass.specs.declared.given.Sealed.{Sealed};
ghost use Rattle.sei_stmt.specs.Handling.{Behavior};
ghost use Rattle.sei_words.specs.LentBucket.{place_of};
ghost use Rattle.sei_words.specs.Words.{BucketWords};
ghost use Rattle.sei_traverse.specs.Bounds.{honest_steps, most_steps, StepsWithin};
ghost use Rattle.sei_traverse.specs.CallContext.{CallContext, IsFitContext};
ghost use Rattle.sei_traverse.specs.FaultInvariant.{FaultInvariant};
ghost use Rattle.sei_traverse.specs.OnWay.{lent_words, OnWay, AtEnd};
ghost use Rattle.sei_traverse.specs.Phases.{reply_of};
ghost use Rattle.sei_traverse.specs.Promises.{KeepsBound, KeepsRoom, KeepsTime, KeepsOnWay, LastOnWay, KeepsIsolated, LastIsolated, KeepsSteps, KeepsLending, RefusesUnfit, RefusedAtGuard};
ghost use Rattle.sei_traverse.specs.Promises.{OfEachStep, OfEachRun, EachRunKeeps};
ghost use Rattle.sei_traverse.specs.Running.{On, Makes};
ghost use Rattle.sei_traverse.specs.Served.{IfUnstruckIn, IsServed, HasReply};
ghost use Rattle.sei_traverse.specs.Sound.{IsServedBy, GivesModelAnswer};
ghost use Rattle.sei_traverse.specs.State.{TraversalState, IsTraversal, begun_traversal};
ghost use Rattle.sei_traverse.specs.Trusted.{IsTrusted, PassesGuard};
ghost use Rattle.sei_traverse.specs.Wanting.{Steps, OfWhatIsEntered, WantsOnce, WantsAll, wanted_in};
ghost use Rattle.sei_traverse.specs.declared.turned.State.{State};
ghost use Rattle.sei_traverse.specs.declared.turned.Turned.{Turned};
ghost use Rattle.sei_traverse.specs.declared.turned.Want.{Want};

use sei_fault::Core;
use sei_stmt::Modeled;

/// A traversal that begins for a call context is on its way. It stays so where the words that were taken
/// are lent when they are wanted, and where they are lent no more once the bucket is given back.
pub fn traversals_are_on_their_way()
    ensures begins { (e : CallContext) (c : Counts) → OnWay e (begun_traversal e.space e.sealed) None c c }
    ensures lends { (e : CallContext) (t : TraversalState) (begin now : Counts) → IsFitContext e → t.workspace.place.phase ≡ Phase.First →
        OnWay e t None begin now → OnWay e t (Some e.taken) begin now }
    ensures gives { (e : CallContext) (t : TraversalState) (words : List ℕ) (begin now : Counts) → t.workspace.place.phase ≡ Phase.Send →
        OnWay e t (Some words) begin now → OnWay e t None begin now }
{}

/// Without a strike a traversal comes to its end: it makes no more steps than this, which is less than
/// a count of 64 bits holds for a valid geometry.
pub fn traversals_end()
    ensures running { (e : CallContext) (t : TraversalState) (lent : Option (List ℕ)) (begin now : Counts) → IsFitContext e → OnWay e t lent begin now → now.struck ≡ begin.struck →
        t.steps ≤ honest_steps e.space }
    ensures ended { (e : CallContext) (t : TraversalState) (begin now : Counts) → AtEnd e t begin now → now.struck ≡ begin.struck →
        t.steps ≤ honest_steps e.space }
{}

/// What is known of a traversal that one strike at most has struck is known where it begins, for every
/// handler, input and list of words. It stays known where the words that were taken are lent when they
/// are wanted, and where they are lent no more once the bucket is given back: the gate has closed two
/// phases then, and nine. If no strike fell, it is on its way. That it stays known after each step is
/// the law `one_strike_is_isolated`, and the clause `isolated` of `Traversal::step`.
pub fn faults_are_isolated()
    ensures begins { (e : CallContext) (c : Counts) → FaultInvariant e (begun_traversal e.space e.sealed) None c c }
    ensures lends { (e : CallContext) (t : TraversalState) (begin now : Counts) → IsTrusted e → t.workspace.gate.done ≡ 2 →
        FaultInvariant e t None begin now → FaultInvariant e t (Some e.taken) begin now }
    ensures gives { (e : CallContext) (t : TraversalState) (words : List ℕ) (begin now : Counts) → t.workspace.gate.done ≡ 9 →
        FaultInvariant e t (Some words) begin now → FaultInvariant e t None begin now }
    ensures on_way { (e : CallContext) (t : TraversalState) (lent : Option (List ℕ)) (begin now : Counts) → FaultInvariant e t lent begin now → OnWay e t lent begin now }
{}

/// One strike is isolated, over the definition of a step alone, for every core that keeps its law, every
/// handler that may be trusted on the input, and every clock. What is known of a traversal that at most
/// one strike has struck is known after each of its steps; what it wants is so, and is wanted but once;
/// it aborts only if a strike fell, and is refused only before `Take` is closed. With one strike at most
/// the number of steps stays bounded; without one the traversal stays on its way, and an input that does
/// not pass the tests of `Guard` is refused. No more strikes fall than the core has room for.
pub fn one_strike_is_isolated<K: Core>()
    ensures isolated { OfEachStep K.gives (KeepsIsolated K.counts) }
    ensures within { OfEachStep K.gives (λ told behavior input x y t. IsTraversal x.traversal → KeepsBound K.counts x y t) }
    ensures on_way { OfEachStep K.gives (KeepsOnWay K.counts) }
    ensures room { OfEachStep K.gives (λ told behavior input x y t. KeepsRoom K.counts x y) }
    ensures refused { OfEachStep K.gives (λ told behavior input x y t. RefusesUnfit K.counts behavior input x y t) }
{}

/// A traversal is refused only in a step at `Guard`, whatever the core answers and however many strikes
/// fall. A run of many steps is refused only if its last step is one at `Guard`.
pub fn refused_only_at_guard<K: Core>()
    ensures step { OfEachStep K.gives (λ told behavior input x y t. RefusedAtGuard x t) }
    ensures run { OfEachRun K.gives K.counts (λ told behavior input n x last z t. RefusedAtGuard last t) }
{}

/// Over all steps of a traversal that are isolated, `Take`, `Enter`, `Give` and `Send` are wanted in this
/// order, each once at most, and where more than `Take` was wanted, its bucket is the call's. If it is
/// finished, all of them were wanted, but for `Send` where its reply is empty; and where it is refused,
/// none was.
pub fn wants_come_once()
    ensures once { (e : CallContext) (begin : Counts) (wants : List Want) (t : TraversalState) (left : Option BucketWords) (state : State) →
        Steps e begin wants t left state → WantsOnce e wants }
    ensures finished { (e : CallContext) (begin : Counts) (wants : List Want) (t : TraversalState) (left : Option BucketWords) →
        Steps e begin wants t left State.Finished → WantsAll e wants t }
    ensures refused { (e : CallContext) (begin : Counts) (wants : List Want) (t : TraversalState) (left : Option BucketWords) →
        Steps e begin wants t left State.Refused → wanted_in wants ≡ [] }
{}

/// What is entered is given back and sent: the words that are left when `Give` is wanted are those that
/// were left when `Enter` was, and the reply is the same when `Send` is wanted, and at the end.
pub fn what_is_entered_stays()
    ensures given { OfWhatIsEntered (λ x lent y left state. y.workspace.want ≡ Want.Give → lent_words left ≡ lent_words lent) }
    ensures sent { OfWhatIsEntered (λ x lent y left state. y.workspace.want ≡ Want.Send → reply_of y.workspace ≡ reply_of x.workspace) }
    ensures finished { OfWhatIsEntered (λ x lent y left state. state ≡ State.Finished → reply_of y.workspace ≡ reply_of x.workspace) }
{}

/// What each step keeps, a run of many steps keeps: what is sealed, the space and the place of what is
/// lent. Its steps are counted; it notes no other time than the clock's; and no question is taken back
/// over it, nor a strike, nor fall more strikes than there is room for.
pub fn runs_keep_what_steps_keep<K: Core>()
    ensures sealed { EachRunKeeps K.gives K.counts (λ x z. z.traversal.workspace.sealed ≡ x.traversal.workspace.sealed) }
    ensures space { EachRunKeeps K.gives K.counts (λ x z. z.traversal.space ≡ x.traversal.space) }
    ensures lent { EachRunKeeps K.gives K.counts (λ x z. place_of z.lent ≡ place_of x.lent) }
    ensures steps { OfEachRun K.gives K.counts (λ told behavior input n x last z t.
        x.traversal.steps ≤ 2 ^ 64 - 1 → z.traversal.steps ≡ min (x.traversal.steps + suc n) (2 ^ 64 - 1)) }
    ensures noted { OfEachRun K.gives K.counts (λ told behavior input n x last z t. KeepsTime told x z) }
    ensures asked { EachRunKeeps K.gives K.counts (λ x z. min (K.counts x.core).asked (2 ^ 128 - 1) ≤ (K.counts z.core).asked) }
    ensures struck { EachRunKeeps K.gives K.counts (λ x z. (K.counts x.core).struck ≤ (K.counts z.core).struck) }
    ensures room { EachRunKeeps K.gives K.counts (KeepsRoom K.counts) }
{}

/// What a step notes of the time is the clock's answer, and so is what a run of many steps notes,
/// unless a strike fell in it.
pub fn clocks_are_noted<K: Core>()
    ensures step { OfEachStep K.gives (λ told behavior input x y t.
        (K.counts y.core).struck ≡ (K.counts x.core).struck → KeepsTime told x y) }
    ensures run { OfEachRun K.gives K.counts (λ told behavior input n x last z t.
        (K.counts z.core).struck ≡ (K.counts x.core).struck → KeepsTime told x z) }
{}

/// A run of many steps goes as its steps do. With one strike at most its steps are bounded. From a
/// traversal that is on its way, its last step stays on it; and from one that at most one strike has
/// struck, its last step is isolated. All its steps are steps of the traversal, each lent what the one
/// before it left, and only the last may want anything. Without a strike an
/// input that does not pass the tests of `Guard` is refused.
pub fn runs_go_as_steps_go<K: Core>()
    ensures within { OfEachRun K.gives K.counts (λ told behavior input n x last z t. IsTraversal x.traversal → KeepsBound K.counts x z t) }
    ensures on_way { OfEachRun K.gives K.counts (λ told behavior input n x last z t. LastOnWay K.counts told behavior input x last z t) }
    ensures isolated { OfEachRun K.gives K.counts (λ told behavior input n x last z t. LastIsolated K.counts told behavior input x last z t) }
    ensures wanted { OfEachRun K.gives K.counts (λ told behavior input n x last z t. KeepsSteps K.counts told behavior input n x z t) }
    ensures lending { OfEachRun K.gives K.counts (λ told behavior input n x last z t. KeepsLending K.counts told behavior input n x z t) }
    ensures refused { OfEachRun K.gives K.counts (λ told behavior input n x last z t. RefusesUnfit K.counts behavior input x z t) }
{}

/// With one strike at most since it began, a traversal makes no more steps than its bound, whatever
/// its handler and its input are.
pub fn steps_are_bounded()
    ensures begins { (space : PassSpace) (sealed : Sealed) (c : Counts) → StepsWithin (begun_traversal space sealed) c c }
    ensures bounded { (t : TraversalState) (begin now : Counts) → IsTraversal t → StepsWithin t begin now → now.struck ≤ begin.struck + 1 →
        t.steps ≤ most_steps t.space }
{}

/// Without a strike, from the want of Enter on, both passes were made: the words are those that an
/// honest run leaves, which is by the noted time where one was noted, the reply and the copy for the
/// wire are its output, and at least twice as many questions were asked as it asks with the test after
/// `Halt` that closes its phase.
pub fn both_passes_are_made()
    ensures entered { (e : CallContext) (t : TraversalState) (lent : Option (List ℕ)) (begin now : Counts) →
        IfUnstruckIn Phase.Give e t lent begin now (IsServed e t lent begin now) }
    ensures still { (e : CallContext) (t : TraversalState) (words : List ℕ) (begin now : Counts) →
        IfUnstruckIn Phase.Send e t (Some words) begin now (IsServed e t (Some words) begin now) }
    ensures given { (e : CallContext) (t : TraversalState) (lent : Option (List ℕ)) (begin now : Counts) →
        IfUnstruckIn Phase.Send e t lent begin now (HasReply e t begin now) }
    ensures sent { (e : CallContext) (t : TraversalState) (lent : Option (List ℕ)) (begin now : Counts) →
        IfUnstruckIn Phase.Done e t lent begin now (HasReply e t begin now) }
    ensures finished { (e : CallContext) (t : TraversalState) (begin now : Counts) → AtEnd e t begin now → now.struck ≡ begin.struck → HasReply e t begin now }
{}

/// A sound handler is trusted on words that stand for a state of its model, so a strike is isolated
/// there; if the input is the sealed one and has the call, its context is fit as well. What is to be
/// entered is the answer: the words stand for the state that it leaves at the noted time, and the reply
/// is the answer's.
pub fn sound_handlers_are_trusted<H: Modeled>()
    ensures trusted { (h : H) (e : CallContext) → IsServedBy (H.space h) (H.begins h) (H.stands h) (H.answer h) e → IsTrusted e }
    ensures fit { (h : H) (e : CallContext) → IsServedBy (H.space h) (H.begins h) (H.stands h) (H.answer h) e → PassesGuard e → IsFitContext e }
    ensures answered { (h : H) (e : CallContext) (s : IsServedBy (H.space h) (H.begins h) (H.stands h) (H.answer h) e) →
        GivesModelAnswer (H.stands h) (H.answer h) s.held e }
{}
