// Lines of both programs and their answers, computed: in specs/. There is no code here.

#![tactic(auto)]
