// What is promised of whole runs, and the examples that the definitions must meet. No code: the statements are in specs/.
#![tactic(auto)]
