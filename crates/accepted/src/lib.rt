// What the reader promises of a text that it accepts: specs alone, so that what rests on them need not wait for the reader.

#![tactic(auto)]
