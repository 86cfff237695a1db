//! Images that are not sound, and by which clause: examples for the definition of a sound image.
#![tactic(auto)]
