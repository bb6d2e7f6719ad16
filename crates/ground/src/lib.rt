// What all rules and proofs share. There is no code here: specs/ has the choice by a test, proofs/ the laws that every layer cites.
#![tactic(auto)]
