// What the replies to questions say of the space itself.
ghost use Rattle.std.specs.Prelude.{◌≡◌, ◌≤◌, ℕ, List, Some};
ghost use Rattle.cells.specs.declared.cells.Cell.{Cell};
ghost use Rattle.chain_core.specs.Formal.{Formal};
ghost use Rattle.elim_fp.specs.Rows.{DenseRow};
ghost use Rattle.reply_text.specs.declared.replies.Reply.TheVariants.{Betti as BettiReply, Homology as HomologyReply, Boundary as BoundaryReply, Express as ExpressReply};
ghost use Rattle.script_lang.specs.declared.commands.Command.TheVariants.{Betti, Homology, Boundary, Express};
ghost use Rattle.script_lang.specs.declared.exprs.Expr.{Expr};
ghost use Rattle.script_lang.specs.declared.simplices.ChainText.{ChainText};
ghost use Rattle.session_core.specs.Answer.{State, told, told_space, answer};
ghost use Rattle.session_core.specs.Lines.{told_line, answer_bytes};
ghost use Rattle.session_core.specs.Replies.{IsBettiReply, IsHomologyReply, IsBoundaryReply, IsExpressReply};
ghost use Rattle.session_core.specs.Whole.{IsWhole, HasRows};
ghost use Rattle.term_lang.specs.SpaceOf.{space_of};
ghost use Rattle.term_lang.specs.declared.terms.Term.{Term};

/// The cycles of a homology reply stand for a homology list of that degree of the space's own normalised
/// chains: each of them is a cycle, and each cycle is, with exactly one list of coefficients, their
/// combination plus a boundary. The space is the one that the line tells, and no other line has such a
/// reply (May, Simplicial Objects, chapter V, 22). It does nothing; its clauses are the law.
pub fn homology_replies()
    ensures questions { (s : State) (e : Expr) (n : ℕ) (t : Term) (zs : List (Formal Cell)) → IsWhole s
        → (answer s (Homology e n)).0 ≡ HomologyReply t zs → IsHomologyReply s e n t zs }
    ensures lines { (s : State) (line : List ℕ) (t : Term) (zs : List (Formal Cell)) → IsWhole s
        → (answer_bytes s line).0 ≡ HomologyReply t zs
        → (e : Expr) × (n : ℕ) × (told_line line ≡ told (Some (Homology e n))) × IsHomologyReply s e n t zs }
{}

/// Each number of a reply to `betti` is the length of every homology list of its degree, of which there
/// is one, and there is a number for each degree asked for. It does nothing; its clause is the law.
pub fn betti_replies()
    ensures { (s : State) (e : Expr) (low high : ℕ) (ds : List ℕ) → IsWhole s
        → (answer s (Betti e low high)).0 ≡ BettiReply ds → IsBettiReply s e low high ds }
{}

/// The chain of a reply to `boundary` stands for d of the chain that the text means, in the space's own
/// normalised chains; in degree 0 it is 0. It does nothing; its clause is the law.
pub fn boundary_replies()
    ensures { (s : State) (e : Expr) (n : ℕ) (text : ChainText) (t : Term) (d : Formal Cell) → IsWhole s
        → (answer s (Boundary e n text)).0 ≡ BoundaryReply t d → IsBoundaryReply s e n text t d }
{}

/// A reply to `express` is of a cycle: the cycle that the text means, minus the combination of the cycles
/// that `homology` lists in its degree with the coefficients of the reply, is d of what the chain of the
/// reply stands for, and no other coefficients leave a boundary (Rubio and Sergeraert, Constructive
/// Homological Algebra and Applications, chapter 2). It does nothing; its clause is the law.
pub fn express_replies()
    ensures { (s : State) (e : Expr) (n : ℕ) (text : ChainText) (t : Term) (v : DenseRow) (d : Formal Cell) → IsWhole s
        → (answer s (Express e n text)).0 ≡ ExpressReply t v d → IsExpressReply s e n text t v d }
{}

/// A table or a sphere meets no limit in its values: where a line tells one and its degrees are at most
/// 16, a question for cycles or for dimensions of its homology is answered. The law is not stated of other
/// spaces, as a value of K(Z,1) may be past a limit. It does nothing; its clauses are the law.
pub fn homology_is_answered()
    ensures cycles { (s : State) (e : Expr) (n : ℕ) (t : Term) → IsWhole s → told_space s.names e ≡ told t → HasRows (space_of t) → n ≤ 16
        → (zs : List (Formal Cell)) × ((answer s (Homology e n)).0 ≡ HomologyReply t zs) }
    ensures dimensions { (s : State) (e : Expr) (low high : ℕ) (t : Term) → IsWhole s → told_space s.names e ≡ told t → HasRows (space_of t) → low ≤ 16 → high ≤ 16
        → (ds : List ℕ) × ((answer s (Betti e low high)).0 ≡ BettiReply ds) }
{}
