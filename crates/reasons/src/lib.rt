// Why a text is refused with 53 or 51: definitions and theorems, see specs/. There is no code here.

#![tactic(auto)]
