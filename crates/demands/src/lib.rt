// What the user demanded, as theorems over the definitions that the public calls promise. No code.
//
// specs/Modes        the counting modes, with drop or without
// specs/Records      the records that can be carried, and which picture is shown
// specs/Table4       the line numbers that a packet may claim, as the source prints them
// specs/Families     the two families of packets: types, second bytes and sub-frame bits, as the source prints them
// specs/Form         the form of a packet, whatever it carries, in the documents' words
// specs/Refused      what 8, 9 and 10 say of a picture, a record and of bits, in the documents' words
// specs/Carriers     what it is for a write to be done or refused, and for words and records to match one to one
// specs/Bars         the bars that document 01 marks P, one table, and those of document 02, A4 and A6, two others
// proofs/Demand1     a write is done or refused, and one that is refused changes no element
// proofs/Demand2     numbers, addresses and pictures; words, lines and packets, read or written
// proofs/Demand3     each code word is reported, as itself, at its 80th bit
// proofs/Windows     what is heard in a window, exactly: forward, backward, complaints, and never both
// proofs/Reverse     demand 3 of readers that hear both ways
// proofs/Rehearsed   the bars, each table under one claim
// proofs/Accepted    a record is clear of its refusals exactly where it is acceptable
// proofs/Pictures    which picture a word, a line or a packet shows, in the request's words
// proofs/Places      what a place is refused by, and a mark that does not say it
// proofs/Families    types, second bytes and sub-frame bits are those that the source prints
// proofs/Packets     what a packet can hold, in the requests' words
// proofs/HighRates   where a picture's place stands in modes 6 to 10, and the words that a packet opens with
// proofs/Bounds      where a mode is refused by 2, exactly: the calls that count, words, lines and packets
// proofs/Counting    where the calls that count give 8, 9, 10 and 14, exactly, and that they answer alike
// proofs/Tests       what the tests for 8, 9 and 10 say, in the documents' words
// proofs/Refused     where a packet is refused by 8, 9 and 10, exactly
// proofs/Numbers     where a packet is refused by 1, 3 to 7 and 12, exactly
// proofs/Seconds     the number of a picture within its second
// proofs/LineNumbers the line numbers that a packet may not claim are those that the printed table has no entry for
//
// What else demand 1 asks for is in the promises of the calls themselves: docs/PROMISES.md says where.
#![tactic(auto)]
