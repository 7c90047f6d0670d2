// Theorems: every answer that a contract cites is 0 or a refusal's number, so that a refusal tells it. See specs/.
#![tactic(auto)]
