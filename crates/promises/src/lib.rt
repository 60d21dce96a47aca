// The promises over the whole library, in proofs/ alone: for each public function any two results that its contract
// permits are equal. Document 01, "How far the promises reach".
#![tactic(auto)]
