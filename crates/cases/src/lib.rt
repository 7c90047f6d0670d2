// The worked examples of documents 01 and 000, proved of the definitions that the contracts cite: see specs/.
#![tactic(auto)]
