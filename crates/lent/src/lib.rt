// The theory of a search over lent memory, for any system and any coding of its states into slots: see specs/.
#![tactic(auto)]
