// What the public calls answer and what `namecheck` prints, as definitions over the text's bytes and the lengths of the buffers.
// No function stands here; the contracts of the calls cite the definitions.
#![tactic(auto)]
