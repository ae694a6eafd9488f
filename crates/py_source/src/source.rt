//! Reading a source: its tokens, its nesting, its tree and its names, up to the first fault.

ghost use Rattle.std.specs.Prelude.{◌≡◌, ◌≤◌, ◌⊎◌, ℕ, List, Err, IfOk, MatchResult};
ghost use Rattle.mpy_base.specs.declared.refused.Refused.TheVariants as refused;
ghost use Rattle.mpy_base.specs.declared.source.SourceFault.{SourceFault as Fault};
ghost use Rattle.py_tokens.specs.declared.token.Token.{Token};
ghost use Rattle.py_tokens.specs.Tokens.{IsTokens};
ghost use Rattle.py_tree.specs.declared.stmt.Module.{Module as Tree};
ghost use Rattle.py_tree.specs.Formed.{IsFormed};
ghost use Rattle.py_parser.specs.py_nest.Nest.{Nests};
ghost use Rattle.py_parser.specs.Grammar.{IsTree};
ghost use Rattle.py_parser.specs.Parsed.{IsFault};
ghost use Rattle.py_scopes.specs.Scopes as names;
ghost use Rattle.py_scopes.specs.Scopes.{IsFaultless, slots_of};
ghost use Rattle.py_source.specs.declared.source.Accepted.{Accepted as Found};
ghost use Rattle.py_source.specs.Source.{IsAccepted, IsFirstFault};

use mpy_base::{Refused, SourceFault};
use py_parser::parse;
use py_scopes::{NameSlots, scopes};
use py_tokens::tokens;
use py_tree::Module;
use std::alloc::Global;

/// What an accepted source is read as.
#[derive(Drop)]
pub struct Accepted {
    pub tree: Module,
    /// The locals of each function of the tree, by slot.
    pub slots: NameSlots,
}

/// The tree of a source and the slots of its names, or the source's first fault, at a level of optimization. What is
/// counted on the compiled code isn't asked here.
pub fn read_source(
    alloc: Global,
    level: u8,
    source: &[u8],
) -> Result<Accepted, Refused<SourceFault>>
    requires { level ≤ 3 }

    // What is answered is what the source is accepted as, and an accepted source is answered so, unless memory isn't
    // found.
    ensures found { IfOk result (λ accepted. IsAccepted level source.now accepted) }
    ensures only { (accepted : Found) → IsAccepted level source.now accepted
        → MatchResult result (λ found. found ≡ accepted) (λ error. error ≡ refused.NoMemory) }

    // The fault is the first one of the source, and a source with one is answered by it, unless memory isn't found.
    ensures fault { (fault : Fault) → result ≡ Err (refused.Fault fault) → IsFirstFault level source.now fault }
    ensures fault_only { (fault : Fault) → IsFirstFault level source.now fault
        → (result ≡ Err (refused.Fault fault)) ⊎ (result ≡ Err refused.NoMemory) }
{
    let tokens = match tokens(alloc, source, level) {
        Ok(tokens) => tokens,
        Err(refusal) => return Err(refusal),
    };
    let tree = match parse(alloc, &tokens) {
        Ok(tree) => tree,
        Err(refusal) => return Err(refusal),
    };
    match scopes(alloc, &tree) {
        Ok(slots) => Ok(Accepted { tree, slots }),
        Err(refusal) => Err(refusal),
    }
}

/// A source is accepted as one tree with its slots, or it has one first fault, and never both.
pub fn accepted_law()
    ensures one { (level : ℕ) (source : List ℕ) (first second : Found) → IsAccepted level source first
        → IsAccepted level source second → first ≡ second }
    ensures one_fault { (level : ℕ) (source : List ℕ) (first second : Fault) → IsFirstFault level source first
        → IsFirstFault level source second → first ≡ second }
    ensures not_both { (level : ℕ) (source : List ℕ) (accepted : Found) (fault : Fault)
        → IsAccepted level source accepted → IsFirstFault level source fault → ⊥ }
    ensures always { (level : ℕ) (source : List ℕ)
        → ((accepted : Found) × IsAccepted level source accepted) ⊎ ((fault : Fault) × IsFirstFault level source fault) }
{}

/// Nothing is left out behind the tokens: each list of tokens has a tree or a fault, each tree is faultless or has a first
/// fault, and so a source that has tokens is accepted or has a first fault.
pub fn always_law()
    ensures tree { (list : List Token) → ((tree : Tree) × Nests list × IsTree list tree) ⊎ ((fault : Fault) × IsFault list fault) }
    ensures names { (tree : Tree) → IsFaultless tree ⊎ ((fault : Fault) × names.IsFirstFault tree fault) }
    ensures source { (level : ℕ) (source : List ℕ) (list : List Token) → IsTokens level source list
        → ((accepted : Found) × IsAccepted level source accepted) ⊎ ((fault : Fault) × IsFirstFault level source fault) }
{}

/// What a compiler may ask of an accepted source: its tree is formed, misuses no name and no word, and the slots are those
/// of the tree's functions.
pub fn asked_law()
    ensures formed { (level : ℕ) (source : List ℕ) (accepted : Found) → IsAccepted level source accepted
        → IsFormed accepted.tree }
    ensures faultless { (level : ℕ) (source : List ℕ) (accepted : Found) → IsAccepted level source accepted
        → IsFaultless accepted.tree }
    ensures slots { (level : ℕ) (source : List ℕ) (accepted : Found) → IsAccepted level source accepted
        → accepted.slots ≡ slots_of accepted.tree }
{}
