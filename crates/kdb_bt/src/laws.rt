//! Laws of frames, each as the contract of a call that does nothing: whoever needs one calls it, or cites the statement that
//! it names.
ghost use Rattle.kdb_bt.specs.Chains.{FramesAreTheLongestChain, FramesAreUnique};

/// The frames of a hart are its pc and the return addresses of the longest chain, of at most 63 frames, that follows the
/// frame pointers from x8 on; every memory has one.
#[tactic(auto, using(crate::proofs::Longest::frames_are_the_longest))]
pub fn frames_are_the_longest_chain()
    ensures { FramesAreTheLongestChain }
{}

/// There is one list of such addresses.
pub fn frames_are_unique()
    ensures { FramesAreUnique }
{}
