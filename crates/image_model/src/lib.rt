//! What a placed image is: the bytes of its regions, the files that are loaded, and what the program sees at
//! its entry; the file of an ARM image file. Definitions; there is no engine.
#![tactic(auto)]
